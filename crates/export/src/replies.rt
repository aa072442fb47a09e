// A call's answer as numbers: code 0, or document 01's number of the refusal.
ghost use Rattle.std.specs.Prelude.{◌≡◌};
ghost use Rattle.export.specs.Replies.{code_of, located_reply, skipped_reply, answer_reply};

use reader::Located;
use search::Answer;
use state::types::{Refusal, State, Table};

// Of a call that changes: table and state are those after it.
#[repr(C)]
#[derive(Clone, Copy)]
pub struct Reply {
    pub code: u32,
    pub table: Table,
    pub state: State,
}

// The page of a number and the headers read on the way; 65535 and 0 where refused.
#[repr(C)]
#[derive(Clone, Copy, Debug, PartialEq, Eq)]
pub struct LocateReply {
    pub code: u32,
    pub page: u16,
    pub headers: u32,
}

// Where a reader then stands: where it stood, if refused.
#[repr(C)]
#[derive(Clone, Copy, Debug, PartialEq, Eq)]
pub struct SeqReply {
    pub code: u32,
    pub seq: u32,
}

// A position on offer, or the search's result at its end.
#[repr(C)]
#[derive(Clone, Copy, Debug, PartialEq, Eq)]
pub struct SearchReply {
    pub code: u32,
    pub offer: bool,
    pub seq: u32,
}

// 0, or document 01's number of the refusal.
pub fn code_of<T>(answer: &Result<T, Refusal>) -> u32
    ensures { result ≡ code_of answer.now }
{
    match answer {
        Ok(_) => 0,
        Err(why) => u32::from(u8::from(*why)),
    }
}

impl From<Result<Located, Refusal>> for LocateReply {
    ghost from_gives = { λ found result. result ≡ located_reply found };

    fn from(found: Result<Located, Refusal>) -> Self {
        let code = code_of(&found);
        match found {
            Ok(at) => LocateReply {
                code,
                page: at.page,
                headers: at.headers,
            },
            Err(_) => LocateReply {
                code,
                page: seq::ids::NONE,
                headers: 0,
            },
        }
    }
}

impl From<Result<Answer, Refusal>> for SearchReply {
    ghost from_gives = { λ answer result. result ≡ answer_reply answer };

    fn from(answer: Result<Answer, Refusal>) -> Self {
        let code = code_of(&answer);
        let (offer, seq) = match answer {
            Ok(Answer::Offer(seq)) => (true, seq),
            Ok(Answer::End(seq)) => (false, seq),
            Err(_) => (false, 0),
        };
        SearchReply { code, offer, seq }
    }
}

// Where a reader then stands that stood there.
pub fn skipped(to: Result<u32, Refusal>, stands: u32) -> SeqReply
    ensures { result ≡ skipped_reply stands to }
{
    SeqReply {
        code: code_of(&to),
        seq: to.unwrap_or(stands),
    }
}

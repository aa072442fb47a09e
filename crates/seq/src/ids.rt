// Page ids. 65535 is never a page: a raw id, which may be none, becomes a PageID through a test.
ghost use Rattle.std.specs.Prelude.{◌≡◌, not, eqb};
ghost use Rattle.seq.specs.Ids.{none, page_of, raw_of, option_of};

// The raw id that means none.
pub const NONE: u16 = 65535;

#[derive(Clone, Copy, Debug, PartialEq, Eq)]
pub struct PageID {
    pub raw: u16,
}

// A page or none, as two bytes hold it.
#[derive(Clone, Copy, Debug, PartialEq, Eq)]
pub struct OptionPageID {
    pub raw: u16,
}

impl PageID {
    pub fn zero() -> Self
        ensures { result ≡ page_of 0 }
    {
        PageID { raw: 0 }
    }

    // The page of a raw id, which none is not.
    pub fn from_raw(raw: u16) -> Option<Self>
        ensures { result ≡ option_of raw }
    {
        if raw == NONE {
            return None;
        }
        Some(PageID { raw })
    }

    pub fn index(self) -> usize
        ensures { result ≡ self.raw }
    {
        usize::from(self.raw)
    }
}

impl OptionPageID {
    pub fn none() -> Self
        ensures { result.raw ≡ none }
    {
        OptionPageID { raw: NONE }
    }

    pub fn from_raw(raw: u16) -> Self
        ensures { result.raw ≡ raw }
    {
        OptionPageID { raw }
    }

    pub fn into_raw(self) -> u16
        ensures { result ≡ self.raw }
    {
        self.raw
    }

    pub fn into_option(self) -> Option<PageID>
        ensures { result ≡ option_of self.raw }
    {
        PageID::from_raw(self.raw)
    }

    pub fn is_some(self) -> bool
        ensures { result ≡ not (eqb self.raw none) }
    {
        self.raw != NONE
    }

    pub fn is_none(self) -> bool
        ensures { result ≡ eqb self.raw none }
    {
        self.raw == NONE
    }
}

impl From<PageID> for OptionPageID {
    ghost from_gives = { λ page result. result.raw ≡ page.raw };

    fn from(page: PageID) -> Self {
        OptionPageID { raw: page.raw }
    }
}

impl From<Option<PageID>> for OptionPageID {
    ghost from_gives = { λ page result. result.raw ≡ raw_of page };

    fn from(page: Option<PageID>) -> Self {
        match page {
            Some(page) => OptionPageID { raw: page.raw },
            None => OptionPageID { raw: NONE },
        }
    }
}

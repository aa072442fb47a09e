// The pages of an image, their headers, and the two stores. An image is a slice of bytes, page p its 256 bytes from
// 256 p on. Every function is total: a page that the image has not is unreadable, and a store outside changes nothing.
#![tactic(auto)]

ghost use Rattle.std.specs.Prelude.{◌≡◌, ◌+◌, ◌*◌, ◌<◌, ℕ, Option};
ghost use Rattle.runs.specs.Runs.{le16, part_of};
ghost use Rattle.page.specs.Page.{Read, page_of, begins, pair_reads, fields, fields_of, header_of, gives, gives_back, HeadedLaws, header_laws, back_laws, meta_of, pairs, header_bytes, meta_bytes};
ghost use Rattle.page.specs.Store.{erase, program, stored, ran, data_stores, meta_store};

use std::array;

pub const PAGE_SIZE: usize = 256;

// A data page is its header and behind it its payload.
pub const HEADER_SIZE: usize = 32;

pub const PAYLOAD_SIZE: usize = PAGE_SIZE - HEADER_SIZE;

const META_SIZE: usize = 12;

const DATA_MAGIC: u32 = 0x7fcb_f35d;

const META_MAGIC: u32 = 0x1d81_bcde;

#[repr(C)]
#[derive(Clone, Copy, Debug, PartialEq, Eq)]
pub struct DataHeader {
    pub seq: u32,
    pub skiplist: [u16; 9],
    pub record_boundary: u16,
    pub length: u16,
}

// What a step back asks of a header: its first number and its link 0.
#[derive(Clone, Copy, Debug, PartialEq, Eq)]
pub struct BackRead {
    pub seq: u32,
    pub link: u16,
}

#[derive(Clone, Copy, Debug, PartialEq, Eq)]
pub struct MetaHeader {
    pub page_count: u32,
    pub seq: u32,
}

// A page of the caller's image, which it refers to and does not copy.
#[derive(Clone, Copy)]
pub struct PageView<'a> {
    pub image: &'a [u8],
    pub page: usize,
}

// ---- reading a page's bytes

// Page p, a part of the image, or nothing. By indices, here and in the stores: the library gives `chunks_exact(..).nth(p)` no contract.
pub fn page_of(image: &[u8], p: usize) -> &[u8]
    ensures { result.now ≡ page_of image.now p }
{
    if p < image.len() / PAGE_SIZE {
        &image[p * PAGE_SIZE..p * PAGE_SIZE + PAGE_SIZE]
    } else {
        &[]
    }
}

#[tactic(auto, unfolding(crate::specs::Page::begins))]
fn begins(pg: &[u8], magic: u32) -> bool
    ensures { result ≡ begins pg.now magic }
{
    pg.len() == PAGE_SIZE && runs::u32_at(pg, 0) == magic
}

fn pair_reads(pg: &[u8]) -> bool
    ensures { result ≡ pair_reads pg.now }
{
    let n = runs::u16_at(pg, 28);
    runs::u16_at(pg, 30) == u16::MAX - n && (1..=PAYLOAD_SIZE as u16).contains(&n)
}

fn links_of(pg: &[u8]) -> [u16; 9]
    ensures { result ≡ fields pg.now 8 9 }
{
    array::from_fn(|i| runs::u16_at(pg, 8 + 2 * i))
}

fn fields_of(pg: &[u8]) -> DataHeader
    ensures { result ≡ fields_of pg.now }
{
    let skiplist = links_of(pg);
    DataHeader {
        seq: runs::u32_at(pg, 4),
        skiplist,
        record_boundary: runs::u16_at(pg, 26),
        length: runs::u16_at(pg, 28),
    }
}

// The bytes of nine links, each two of them.
fn links_bytes(links: [u16; 9]) -> [u8; 18]
    ensures { result ≡ pairs links }
{
    let mut bytes = [0; 18];
    for (i, link) in links.iter().enumerate() {
        bytes[2 * i..2 * i + 2].copy_from_slice(&link.to_le_bytes());
    }
    bytes
}

// ---- the headers of the two kinds of page

impl DataHeader {
    // Of a page's bytes: the magic matches, the pair agrees, and the payload fits the page.
    #[tactic(auto, unfolding(crate::specs::Page::header_of, crate::specs::Page::gives))]
    fn from_page(pg: &[u8]) -> Option<DataHeader>
        ensures { result ≡ gives (header_of pg.now) }
    {
        if begins(pg, DATA_MAGIC) && pair_reads(pg) {
            Some(fields_of(pg))
        } else {
            None
        }
    }

    #[tactic(auto, unfolding(crate::specs::Page::header_bytes))]
    fn to_bytes(self) -> [u8; HEADER_SIZE]
        ensures { result ≡ header_bytes self }
    {
        let mut bytes = [0; HEADER_SIZE];
        bytes[..4].copy_from_slice(&DATA_MAGIC.to_le_bytes());
        bytes[4..8].copy_from_slice(&self.seq.to_le_bytes());
        bytes[8..26].copy_from_slice(&links_bytes(self.skiplist));
        bytes[26..28].copy_from_slice(&self.record_boundary.to_le_bytes());
        bytes[28..30].copy_from_slice(&self.length.to_le_bytes());
        bytes[30..].copy_from_slice(&(u16::MAX - self.length).to_le_bytes());
        bytes
    }
}

impl BackRead {
    // Of the same header, what a step back asks, so that a walk of many pages carries no headers.
    #[tactic(auto, using(crate::proofs::Headers::given_none), unfolding(crate::specs::Page::gives_back))]
    fn from_page(pg: &[u8]) -> Option<BackRead>
        ensures { result ≡ gives_back (header_of pg.now) }
    {
        let h = DataHeader::from_page(pg)?;
        Some(BackRead {
            seq: h.seq,
            link: h.skiplist[0],
        })
    }
}

// The two kinds of header share no more than `begins`: other fields, other sizes, and a pair in one alone. A trait over both would
// name each of these twice more.
impl MetaHeader {
    #[tactic(auto, unfolding(crate::specs::Page::meta_of))]
    fn from_page(pg: &[u8]) -> Option<MetaHeader>
        ensures { result ≡ meta_of pg.now }
    {
        if begins(pg, META_MAGIC) {
            Some(MetaHeader {
                page_count: runs::u32_at(pg, 4),
                seq: runs::u32_at(pg, 8),
            })
        } else {
            None
        }
    }

    #[tactic(auto, unfolding(crate::specs::Page::meta_bytes))]
    fn to_bytes(self) -> [u8; META_SIZE]
        ensures { result ≡ meta_bytes self }
    {
        let mut bytes = [0; META_SIZE];
        bytes[..4].copy_from_slice(&META_MAGIC.to_le_bytes());
        bytes[4..8].copy_from_slice(&self.page_count.to_le_bytes());
        bytes[8..].copy_from_slice(&self.seq.to_le_bytes());
        bytes
    }
}

// ---- the page view, and its thin readers

impl<'a> PageView<'a> {
    pub fn new(image: &'a [u8], page: usize) -> PageView<'a>
        ensures { (result.image ≡ image.entry) × (result.page ≡ page) }
    {
        PageView { image, page }
    }

    pub fn bytes(self) -> &'a [u8]
        ensures { result.now ≡ page_of self.entry.image.now self.entry.page }
    {
        page_of(self.image, self.page)
    }

    pub fn header(self) -> Option<DataHeader>
        ensures { result ≡ gives (header_of (page_of self.entry.image.now self.entry.page)) }
    {
        DataHeader::from_page(self.bytes())
    }

    pub fn meta(self) -> Option<MetaHeader>
        ensures { result ≡ meta_of (page_of self.entry.image.now self.entry.page) }
    {
        MetaHeader::from_page(self.bytes())
    }

    pub fn back(self) -> Option<BackRead>
        ensures { result ≡ gives_back (header_of (page_of self.entry.image.now self.entry.page)) }
    {
        BackRead::from_page(self.bytes())
    }
}

// With plain parameters: whoever calls it sees no view.
pub fn header_at(image: &[u8], p: usize) -> Option<DataHeader>
    ensures { result ≡ gives (header_of (page_of image.now p)) }
{
    PageView::new(image, p).header()
}

pub fn meta_at(image: &[u8], p: usize) -> Option<MetaHeader>
    ensures { result ≡ meta_of (page_of image.now p) }
{
    PageView::new(image, p).meta()
}

pub fn back_at(image: &[u8], p: usize) -> Option<BackRead>
    ensures { result ≡ gives_back (header_of (page_of image.now p)) }
{
    PageView::new(image, p).back()
}

// ---- what a step reads of a header: all of it, or what a step back asks

pub trait Headed: Copy {
    ghost reads: { Read → Option Self };

    ghost start: { Self → ℕ };

    ghost laws: { HeadedLaws reads start };

    fn read_at(image: &[u8], p: usize) -> Option<Self>
        ensures { result ≡ reads (header_of (page_of image.now p)) };

    fn seq(&self) -> u32
        ensures { result ≡ start self.now };
}

impl Headed for DataHeader {
    ghost reads = { gives };

    ghost start = { λ h. h.seq };

    ghost laws = { header_laws };

    fn read_at(image: &[u8], p: usize) -> Option<DataHeader> {
        header_at(image, p)
    }

    fn seq(&self) -> u32 {
        self.seq
    }
}

impl Headed for BackRead {
    ghost reads = { gives_back };

    ghost start = { λ b. b.seq };

    ghost laws = { back_laws };

    fn read_at(image: &[u8], p: usize) -> Option<BackRead> {
        back_at(image, p)
    }

    fn seq(&self) -> u32 {
        let BackRead { seq, .. } = *self;
        seq
    }
}

// ---- parts of a page, which are parts of the image

// The n bytes of page p from at on, or none of them where they pass the page's end.
pub fn area_at(image: &[u8], p: usize, at: usize, n: usize) -> &[u8]
    ensures { result.now ≡ part_of (page_of image.now p) at n }
{
    runs::part_of(page_of(image, p), at, n)
}

// The n bytes of page p's payload from off on, or none of them where they pass the page's end.
pub fn payload_at(image: &[u8], p: usize, off: usize, n: usize) -> &[u8]
    ensures { result.now ≡ part_of (page_of image.now p) (32 + off) n }
{
    if off <= PAYLOAD_SIZE {
        area_at(image, p, HEADER_SIZE + off, n)
    } else {
        &[]
    }
}

// ---- stores

// Erases page p to 0xFF.
pub fn erase(image: &mut [u8], p: usize)
    ensures { image.new ≡ stored image.old (erase p) }
{
    if p < image.len() / PAGE_SIZE {
        image[p * PAGE_SIZE..p * PAGE_SIZE + PAGE_SIZE].fill(0xFF);
    }
}

// Programs a run at an offset of page p. Nothing changes where the image has no such page or the run passes its end.
pub fn program(image: &mut [u8], p: usize, off: usize, run: &[u8])
    ensures { image.new ≡ stored image.old (program p off run.now) }
{
    if p < image.len() / PAGE_SIZE {
        let page = &mut image[p * PAGE_SIZE..p * PAGE_SIZE + PAGE_SIZE];
        runs::place(page, off, run);
    }
}

// Stores a data page: erase, payload, header.
pub fn store_data(image: &mut [u8], p: usize, h: DataHeader, payload: &[u8])
    ensures { image.new ≡ ran image.old (data_stores p h payload.now) }
{
    erase(image, p);
    program(image, p, HEADER_SIZE, payload);
    program(image, p, 0, &h.to_bytes());
}

// Stores a metadata page's header, which makes the page readable.
pub fn store_meta(image: &mut [u8], p: usize, m: MetaHeader)
    ensures { image.new ≡ stored image.old (meta_store p m) }
{
    program(image, p, 0, &m.to_bytes());
}

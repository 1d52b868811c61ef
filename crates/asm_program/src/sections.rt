//! The sections of a program, and where they go on.
ghost use Rattle.std.specs.Prelude.{◌≡◌, map};
ghost use Rattle.asm_program.specs.Sections.{are_settled, bases_of, belongs_to, counter_of, is_dotted_rest, page_around, page_behind, section_in, section_of, with_counter};

/// A section of a program.
#[derive(Clone, Copy, PartialEq, Eq)]
pub(crate) enum Section {
    /// What `.org` puts at an address.
    Absolute,
    /// `.text`
    Text,
    /// `.rodata`
    Rodata,
    /// `.data`
    Data,
    /// `.bss`
    Bss,
}

/// The address at which each section goes on.
#[derive(Clone, Copy, PartialEq, Eq)]
pub(crate) struct Counters {
    /// That behind the last `.org`.
    pub absolute: u64,
    /// That of `.text`.
    pub text: u64,
    /// That of `.rodata`.
    pub rodata: u64,
    /// That of `.data`.
    pub variables: u64,
    /// That of `.bss`.
    pub bss: u64,
    /// That of the next page table.
    pub tables: u64,
}

impl Counters {
    /// Where each section begins at 0.
    pub(crate) fn zero() -> Counters
        ensures { result ≡ record { absolute = 0; text = 0; rodata = 0; variables = 0; bss = 0; tables = 0 } }
    {
        Counters {
            absolute: 0,
            text: 0,
            rodata: 0,
            variables: 0,
            bss: 0,
            tables: 0,
        }
    }

    /// Where a section goes on.
    pub(crate) fn of(&self, section: Section) -> u64
        ensures { result ≡ counter_of self.now section }
    {
        match section {
            Section::Absolute => self.absolute,
            Section::Text => self.text,
            Section::Rodata => self.rodata,
            Section::Data => self.variables,
            Section::Bss => self.bss,
        }
    }

    /// Lets a section go on at an address.
    pub(crate) fn set(&mut self, section: Section, next: u64)
        ensures { self.new ≡ with_counter self.old section next }
    {
        match section {
            Section::Absolute => self.absolute = next,
            Section::Text => self.text = next,
            Section::Rodata => self.rodata = next,
            Section::Data => self.variables = next,
            Section::Bss => self.bss = next,
        }
    }

    /// Where sections of these sizes begin, each behind the one before it.
    pub(crate) fn bases(&self) -> Option<Counters>
        ensures { result ≡ bases_of self.now }
    {
        let text = page_behind(self.absolute, 0)?;
        let rodata = page_behind(text, self.text)?;
        let variables = page_behind(rodata, self.rodata)?;
        let bss = page_behind(variables, self.variables)?;
        Some(Counters {
            absolute: 0,
            text,
            rodata,
            variables,
            bss,
            tables: page_around(bss, self.bss),
        })
    }

    /// Whether sections that begin at these bases have these sizes, and end here.
    pub(crate) fn are_settled(&self, bases: &Counters, sizes: &Counters) -> bool
        ensures { result ≡ are_settled bases.now sizes.now self.now }
    {
        self.absolute == sizes.absolute
            && self.text.wrapping_sub(bases.text) == sizes.text
            && self.rodata.wrapping_sub(bases.rodata) == sizes.rodata
            && self.variables.wrapping_sub(bases.variables) == sizes.variables
            && self.bss.wrapping_sub(bases.bss) == sizes.bss
    }
}

/// The first page behind so many bytes.
fn page_behind(at: u64, size: u64) -> Option<u64>
    ensures { result ≡ page_behind at size }
{
    let last = at.checked_add(size)?.checked_add(4095)?;
    Some(last / 4096 * 4096)
}

/// The first page behind so many bytes, around the address space.
fn page_around(at: u64, size: u64) -> u64
    ensures { result ≡ page_around at size }
{
    at.wrapping_add(size).wrapping_add(4095) / 4096 * 4096
}

/// The section of this name; one with a longer name, as `.text.startup`, belongs to it.
#[tactic(auto, unfolding(crate::specs::Sections::section_of))]
pub(crate) fn section_of(word: &[u8]) -> Option<Section>
    ensures { result ≡ section_of word.now }
{
    section_in(&SECTIONS, word)
}

/// The section in the first row to whose name a word belongs.
fn section_in(rows: &[(&[u8], Section)], word: &[u8]) -> Option<Section>
    ensures { result ≡ section_in word.now (map (λ row. (row.0.now, row.1)) rows.now) }
{
    for row in rows {
        if belongs_to(row.0, word) {
            return Some(row.1);
        }
    }
    None
}

/// Whether a word is this name, or goes on behind it with a dot.
fn belongs_to(name: &[u8], word: &[u8]) -> bool
    ensures { result ≡ belongs_to name.now word.now }
{
    match word.strip_prefix(name) {
        Some(rest) => is_dotted_rest(rest),
        None => false,
    }
}

/// Whether nothing is left of a word, or a dot and more.
fn is_dotted_rest(rest: &[u8]) -> bool
    ensures { result ≡ is_dotted_rest rest.now }
{
    match rest.split_first() {
        Some((first, _)) => *first == b'.',
        None => true,
    }
}

/// The sections by their names.
const SECTIONS: [(&[u8], Section); 7] = [
    (b".text", Section::Text),
    (b".rodata", Section::Rodata),
    (b".srodata", Section::Rodata),
    (b".data", Section::Data),
    (b".sdata", Section::Data),
    (b".bss", Section::Bss),
    (b".sbss", Section::Bss),
];

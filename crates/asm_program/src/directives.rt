//! The names of directives.
ghost use Rattle.std.specs.Prelude.{◌≡◌, map};
ghost use Rattle.asm_program.specs.Directives.{directive_in, directive_of, listed_directive};

use crate::sections::Section;
use sv39::Paging;

/// A directive.
#[derive(Clone, Copy, PartialEq, Eq)]
pub(crate) enum Directive {
    /// `.equ` and `.set`: a symbol.
    Equ,
    /// `.org`: the address of what follows.
    Org,
    /// `.byte`, `.half`, `.word`, `.dword` and the like: numbers of so many bytes; of none by `.board`.
    Data(u64),
    /// `.tick`: ticks of the clock.
    Tick,
    /// `.map` and `.map48`: a page, and the tables that lead to it.
    Map(Paging),
    /// `.ascii`: the bytes of a string; by `.asciz` and `.string` with a 0 behind them.
    Ascii(bool),
    /// `.zero`, `.space` and `.skip`: so many bytes that are 0.
    Space,
    /// `.align` and `.p2align`: up to a multiple of a power of 2.
    Align,
    /// `.balign`: up to a multiple.
    Balign,
    /// `.text`, `.rodata`, `.data` and `.bss`: what follows belongs to this section.
    Enter(Section),
    /// `.section`: what follows belongs to the section that the operand names.
    Named,
    /// `.comm` and `.lcomm`: a symbol, and so many bytes in `.bss`.
    Common,
    /// One that says nothing here.
    Passed,
}

/// The directive of this name.
pub(crate) fn directive_of(word: &[u8]) -> Option<Directive>
    ensures { result ≡ directive_of word.now }
{
    if word.starts_with(b".cfi_") {
        return Some(Directive::Passed);
    }
    listed_directive(word)
}

/// The directive in the first row of the table with this word.
#[tactic(auto, unfolding(crate::specs::Directives::listed_directive))]
fn listed_directive(word: &[u8]) -> Option<Directive>
    ensures { result ≡ listed_directive word.now }
{
    directive_in(&DIRECTIVES, word)
}

/// The directive in the first row with this word.
fn directive_in(rows: &[(&[u8], Directive)], word: &[u8]) -> Option<Directive>
    ensures { result ≡ directive_in word.now (map (λ row. (row.0.now, row.1)) rows.now) }
{
    for row in rows {
        if row.0 == word {
            return Some(row.1);
        }
    }
    None
}

/// All directives by their names. The last ones tell linkers and debuggers something.
pub(crate) const DIRECTIVES: [(&[u8], Directive); 44] = [
    (b".board", Directive::Data(0)),
    (b".byte", Directive::Data(1)),
    (b".half", Directive::Data(2)),
    (b".short", Directive::Data(2)),
    (b".2byte", Directive::Data(2)),
    (b".word", Directive::Data(4)),
    (b".long", Directive::Data(4)),
    (b".4byte", Directive::Data(4)),
    (b".dword", Directive::Data(8)),
    (b".quad", Directive::Data(8)),
    (b".8byte", Directive::Data(8)),
    (b".tick", Directive::Tick),
    (b".map", Directive::Map(Paging::Sv39)),
    (b".map48", Directive::Map(Paging::Sv48)),
    (b".ascii", Directive::Ascii(false)),
    (b".asciz", Directive::Ascii(true)),
    (b".string", Directive::Ascii(true)),
    (b".equ", Directive::Equ),
    (b".set", Directive::Equ),
    (b".org", Directive::Org),
    (b".zero", Directive::Space),
    (b".space", Directive::Space),
    (b".skip", Directive::Space),
    (b".align", Directive::Align),
    (b".p2align", Directive::Align),
    (b".balign", Directive::Balign),
    (b".text", Directive::Enter(Section::Text)),
    (b".rodata", Directive::Enter(Section::Rodata)),
    (b".data", Directive::Enter(Section::Data)),
    (b".bss", Directive::Enter(Section::Bss)),
    (b".section", Directive::Named),
    (b".comm", Directive::Common),
    (b".lcomm", Directive::Common),
    (b".globl", Directive::Passed),
    (b".global", Directive::Passed),
    (b".weak", Directive::Passed),
    (b".type", Directive::Passed),
    (b".size", Directive::Passed),
    (b".option", Directive::Passed),
    (b".attribute", Directive::Passed),
    (b".ident", Directive::Passed),
    (b".file", Directive::Passed),
    (b".loc", Directive::Passed),
    (b".local", Directive::Passed),
];

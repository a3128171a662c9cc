// Why something is refused: a case for each of document 01's numbered answers, holding what the number does not fix.
ghost use Rattle.std.specs.Prelude.{◌≡◌, pos};
ghost use Rattle.format.specs.Refusals as Spec;
ghost use Rattle.format.specs.declared.refusal.Refusal.TheVariants.{Ended};

use crate::types::Cursor;

#[derive(Clone, Copy)]
pub enum Refusal {
    TooLarge,
    Ended {
        section: u8,
        place: usize,
    },
    BadMagic {
        value: i32,
    },
    NegativeCount {
        section: u8,
        place: usize,
        value: i32,
    },
    NegativeOffset {
        place: usize,
        value: i32,
    },
    BadOpcode {
        place: usize,
        opcode: u8,
    },
    BadMode {
        place: usize,
        mode: u8,
    },
    BadKind {
        place: usize,
        nibble: u8,
    },
    NotClosed {
        section: u8,
        place: usize,
        byte: u8,
    },
    EntryPc {
        value: i32,
    },
    EntryType {
        value: i32,
    },
    BothFlags {
        flags: i32,
    },
    ExportPc {
        export: usize,
        value: i32,
    },
    ExportFrame {
        export: usize,
        value: i32,
    },
    HandlerBegin {
        handler: usize,
        value: i32,
    },
    HandlerEnd {
        handler: usize,
        value: i32,
    },
    HandlerRange {
        handler: usize,
        end: i32,
    },
    HandlerType {
        handler: usize,
        value: i32,
    },
    CasePc {
        handler: usize,
        case: u32,
    },
    FewWords {
        needed: u32,
    },
    WideOperand {
        section: u8,
        place: usize,
        value: i32,
    },
    NotWellFormed {
        place: usize,
    },
    NoFlag {
        section: u8,
        flags: i32,
    },
    ShortOutput {
        needed: u32,
    },
    NoExport {
        number: u32,
    },
}

impl Refusal {
    // The file ends inside the piece that starts at a cursor.
    pub fn ended(section: u8, c: Cursor) -> Refusal
        ensures { result ≡ Ended section c.at }
    {
        Refusal::Ended {
            section,
            place: c.at,
        }
    }
}

// What every refusal gives.
#[derive(Clone, Copy)]
pub struct Numbered {
    pub number: u8,
    pub section: u8,
    pub place: usize,
    pub detail: i64,
}

fn four(number: u8, section: u8, place: usize, detail: i64) -> Numbered
    ensures { result ≡ Spec.four number section place detail }
{
    Numbered {
        number,
        section,
        place,
        detail,
    }
}

impl From<Refusal> for Numbered {
    ghost from_gives = { λ why n. n ≡ Spec.numbered_of why };

    fn from(why: Refusal) -> Numbered {
        match why {
            Refusal::TooLarge => four(1, 0, 0, 0),
            Refusal::Ended { section, place } => four(2, section, place, 0),
            Refusal::BadMagic { value } => four(3, 1, 0, value.into()),
            Refusal::NegativeCount {
                section,
                place,
                value,
            } => four(4, section, place, value.into()),
            Refusal::NegativeOffset { place, value } => four(5, 4, place, value.into()),
            Refusal::BadOpcode { place, opcode } => four(6, 2, place, opcode.into()),
            Refusal::BadMode { place, mode } => four(7, 2, place, mode.into()),
            Refusal::BadKind { place, nibble } => four(8, 4, place, nibble.into()),
            Refusal::NotClosed {
                section,
                place,
                byte,
            } => four(9, section, place, byte.into()),
            Refusal::EntryPc { value } => four(10, 1, 0, value.into()),
            Refusal::EntryType { value } => four(11, 1, 0, value.into()),
            Refusal::BothFlags { flags } => four(12, 1, 0, flags.into()),
            Refusal::ExportPc { export, value } => four(13, 6, export, value.into()),
            Refusal::ExportFrame { export, value } => four(14, 6, export, value.into()),
            Refusal::HandlerBegin { handler, value } => four(15, 8, handler, value.into()),
            Refusal::HandlerEnd { handler, value } => four(16, 8, handler, value.into()),
            Refusal::HandlerRange { handler, end } => four(17, 8, handler, end.into()),
            Refusal::HandlerType { handler, value } => four(18, 8, handler, value.into()),
            Refusal::CasePc { handler, case } => four(19, 8, handler, case.into()),
            Refusal::FewWords { needed } => four(20, 0, 0, needed.into()),
            Refusal::WideOperand {
                section,
                place,
                value,
            } => four(21, section, place, value.into()),
            Refusal::NotWellFormed { place } => four(22, 0, place, 0),
            Refusal::NoFlag { section, flags } => four(23, section, 0, flags.into()),
            Refusal::ShortOutput { needed } => four(24, 0, 0, needed.into()),
            Refusal::NoExport { number } => four(25, 0, 0, number.into()),
        }
    }
}

// Runs the sheet's worked sequences, those of requests C-12 and C-15, refused records and document 01's listing through the
// cycle, and checks every number, kind and byte that it answers.

#![tactic(auto)]

ghost use Rattle.std.specs.Prelude.{◌≡◌, true};
ghost use Rattle.sed1520.specs.Cycle.{answer_of};
ghost use Rattle.vectors.specs.Cases.{case_agrees, agrees_of};

use basics::refusal::Refusal;
use sed1520::actions::Accepted;
use sed1520::bus::{Record, cycle};
use sed1520::registers::Chip;

// A case: a record's control lines, chip, byte and fourth byte, then the number, the kind and the byte that its cycle must
// answer.
const CASE: usize = 7;

// Control lines: the four cycles, and two that are none, with both strobes low and with both high.
const COMMAND: u8 = 2;

const WRITE: u8 = 3;

const STATUS: u8 = 4;

const READ: u8 = 5;

const STROBES: u8 = 0;

const NO_STROBE: u8 = 6;

// A bit that is no control line, added to one of the others.
const SPARE: u8 = 8;

// The chip that every sequence is sent to, and one that is not there.
const LEFT: u8 = 0;

const NO_CHIP: u8 = 2;

// Command bytes; a page, a column and a start line are added to theirs.
const COLUMN: u8 = 0x00;

const ADC_FORWARD: u8 = 0xA0;

const ADC_REVERSE: u8 = 0xA1;

const DISPLAY_OFF: u8 = 0xAE;

const DISPLAY_ON: u8 = 0xAF;

const PAGE: u8 = 0xB8;

const START_LINE: u8 = 0xC0;

const MODIFY_ON: u8 = 0xE0;

const RESET: u8 = 0xE2;

const MODIFY_OFF: u8 = 0xEE;

// The first column that RAM does not have.
const STOP: u8 = Chip::COLUMN_STOP;

// Numbers.
const DONE: u8 = 0;

const SPARE_BITS: u8 = 4;

const NO_SUCH_CHIP: u8 = 5;

const EQUAL_STROBES: u8 = 6;

const NO_COMMAND: u8 = 7;

const COLUMN_IN_MODIFY: u8 = 8;

const NO_SUCH_COLUMN: u8 = 14;

// Kinds of answer: of a write or a refused record, of a data read from a fresh or a stale latch, of a status read.
const NONE: u8 = 0;

const FRESH: u8 = 1;

const STALE: u8 = 2;

const STATUS_BYTE: u8 = 3;

// 4.11, 4.12: a blinking cursor. Two bytes at page 1, column 10; read-modify-write on, the empty read, the read,
// the byte inverted and written back, the next byte read after an empty read; the end returns to column 10, where the
// cursor now stands.
const CURSOR_BLINK: [[u8; CASE]; 15] = [
    [COMMAND, LEFT, PAGE + 1, 0, DONE, NONE, 0],
    [COMMAND, LEFT, COLUMN + 10, 0, DONE, NONE, 0],
    [WRITE, LEFT, 0x3C, 0, DONE, NONE, 0],
    [WRITE, LEFT, 0x81, 0, DONE, NONE, 0],
    [COMMAND, LEFT, COLUMN + 10, 0, DONE, NONE, 0],
    [COMMAND, LEFT, MODIFY_ON, 0, DONE, NONE, 0],
    [READ, LEFT, 0, 0, DONE, STALE, 0x00],
    [READ, LEFT, 0, 0, DONE, FRESH, 0x3C],
    [WRITE, LEFT, 0xC3, 0, DONE, NONE, 0],
    [READ, LEFT, 0, 0, DONE, STALE, 0x3C],
    [READ, LEFT, 0, 0, DONE, FRESH, 0x81],
    [COMMAND, LEFT, MODIFY_OFF, 0, DONE, NONE, 0],
    [READ, LEFT, 0, 0, DONE, STALE, 0x81],
    [READ, LEFT, 0, 0, DONE, FRESH, 0xC3],
    [READ, LEFT, 0, 0, DONE, FRESH, 0x81],
];

// Request C-12: a cursor's cell (7F at page 1, column 21) read back in read-modify-write, after a page set from the letter
// above it (3E) and after the letter beside it (41) is written back inverted. Each time the first read is empty: it answers
// that letter, as kind 2; the second answers the cell's byte, kind 1. A write at column 80 leaves the next read empty too.
const CURSOR_READ_BACK: [[u8; CASE]; 30] = [
    [COMMAND, LEFT, PAGE, 0, DONE, NONE, 0],
    [COMMAND, LEFT, COLUMN + 21, 0, DONE, NONE, 0],
    [WRITE, LEFT, 0x3E, 0, DONE, NONE, 0],
    [COMMAND, LEFT, PAGE + 1, 0, DONE, NONE, 0],
    [COMMAND, LEFT, COLUMN + 20, 0, DONE, NONE, 0],
    [WRITE, LEFT, 0x41, 0, DONE, NONE, 0],
    [WRITE, LEFT, 0x7F, 0, DONE, NONE, 0],
    [COMMAND, LEFT, PAGE, 0, DONE, NONE, 0],
    [COMMAND, LEFT, COLUMN + 21, 0, DONE, NONE, 0],
    [COMMAND, LEFT, MODIFY_ON, 0, DONE, NONE, 0],
    [READ, LEFT, 0, 0, DONE, STALE, 0x00],
    [READ, LEFT, 0, 0, DONE, FRESH, 0x3E],
    [COMMAND, LEFT, PAGE + 1, 0, DONE, NONE, 0],
    [READ, LEFT, 0, 0, DONE, STALE, 0x3E],
    [READ, LEFT, 0, 0, DONE, FRESH, 0x7F],
    [COMMAND, LEFT, MODIFY_OFF, 0, DONE, NONE, 0],
    [COMMAND, LEFT, COLUMN + 20, 0, DONE, NONE, 0],
    [COMMAND, LEFT, MODIFY_ON, 0, DONE, NONE, 0],
    [READ, LEFT, 0, 0, DONE, STALE, 0x7F],
    [READ, LEFT, 0, 0, DONE, FRESH, 0x41],
    [WRITE, LEFT, 0xBE, 0, DONE, NONE, 0],
    [READ, LEFT, 0, 0, DONE, STALE, 0x41],
    [READ, LEFT, 0, 0, DONE, FRESH, 0x7F],
    [COMMAND, LEFT, MODIFY_OFF, 0, DONE, NONE, 0],
    [COMMAND, LEFT, COLUMN + 79, 0, DONE, NONE, 0],
    [WRITE, LEFT, 0x66, 0, DONE, NONE, 0],
    [COMMAND, LEFT, COLUMN + 79, 0, DONE, NONE, 0],
    [READ, LEFT, 0, 0, DONE, STALE, 0x7F],
    [WRITE, LEFT, 0x55, 0, DONE, NONE, 0],
    [READ, LEFT, 0, 0, DONE, STALE, 0x66],
];

// 4.4, 4.7: after a column set the first read is empty; then the bytes come in rising column.
const EMPTY_READ: [[u8; CASE]; 11] = [
    [COMMAND, LEFT, PAGE + 2, 0, DONE, NONE, 0],
    [COMMAND, LEFT, COLUMN + 5, 0, DONE, NONE, 0],
    [WRITE, LEFT, 0x11, 0, DONE, NONE, 0],
    [WRITE, LEFT, 0x22, 0, DONE, NONE, 0],
    [COMMAND, LEFT, COLUMN + 5, 0, DONE, NONE, 0],
    [READ, LEFT, 0, 0, DONE, STALE, 0x00],
    [READ, LEFT, 0, 0, DONE, FRESH, 0x11],
    [READ, LEFT, 0, 0, DONE, FRESH, 0x22],
    [COMMAND, LEFT, COLUMN + 6, 0, DONE, NONE, 0],
    [READ, LEFT, 0, 0, DONE, STALE, 0x00],
    [READ, LEFT, 0, 0, DONE, FRESH, 0x22],
];

// 4.4: counting stops at 80. The third byte is not stored, neither at column 0 nor on the next page; reads past the end
// answer the byte that was loaded last.
const COUNTING_STOP: [[u8; CASE]; 17] = [
    [COMMAND, LEFT, PAGE, 0, DONE, NONE, 0],
    [COMMAND, LEFT, COLUMN + 78, 0, DONE, NONE, 0],
    [WRITE, LEFT, 0xA1, 0, DONE, NONE, 0],
    [WRITE, LEFT, 0xA2, 0, DONE, NONE, 0],
    [WRITE, LEFT, 0xA3, 0, DONE, NONE, 0],
    [COMMAND, LEFT, COLUMN + 78, 0, DONE, NONE, 0],
    [READ, LEFT, 0, 0, DONE, STALE, 0x00],
    [READ, LEFT, 0, 0, DONE, FRESH, 0xA1],
    [READ, LEFT, 0, 0, DONE, FRESH, 0xA2],
    [READ, LEFT, 0, 0, DONE, STALE, 0xA2],
    [COMMAND, LEFT, COLUMN, 0, DONE, NONE, 0],
    [READ, LEFT, 0, 0, DONE, STALE, 0xA2],
    [READ, LEFT, 0, 0, DONE, FRESH, 0x00],
    [COMMAND, LEFT, PAGE + 1, 0, DONE, NONE, 0],
    [COMMAND, LEFT, COLUMN, 0, DONE, NONE, 0],
    [READ, LEFT, 0, 0, DONE, STALE, 0x00],
    [READ, LEFT, 0, 0, DONE, FRESH, 0x00],
];

// Request C-15: the slip. Column 100 (64 hex) is refused with number 14, and so are the first and the last of the columns
// that do not exist, 50 and 7F: what is written next goes to the column counted so far, and a fresh latch stays fresh. In
// read-modify-write it is number 8. Column 79 exists, and counting reaches 80, which read-modify-write saves and returns to.
const MISSING_COLUMN: [[u8; CASE]; 25] = [
    [COMMAND, LEFT, PAGE + 2, 0, DONE, NONE, 0],
    [COMMAND, LEFT, COLUMN + 10, 0, DONE, NONE, 0],
    [WRITE, LEFT, 0x11, 0, DONE, NONE, 0],
    [COMMAND, LEFT, COLUMN + 100, 0, NO_SUCH_COLUMN, NONE, 0],
    [WRITE, LEFT, 0x22, 0, DONE, NONE, 0],
    [COMMAND, LEFT, COLUMN + 10, 0, DONE, NONE, 0],
    [READ, LEFT, 0, 0, DONE, STALE, 0x00],
    [COMMAND, LEFT, COLUMN + STOP, 0, NO_SUCH_COLUMN, NONE, 0],
    [READ, LEFT, 0, 0, DONE, FRESH, 0x11],
    [COMMAND, LEFT, COLUMN + 127, 0, NO_SUCH_COLUMN, NONE, 0],
    [READ, LEFT, 0, 0, DONE, FRESH, 0x22],
    [COMMAND, LEFT, MODIFY_ON, 0, DONE, NONE, 0],
    [COMMAND, LEFT, COLUMN + 100, 0, COLUMN_IN_MODIFY, NONE, 0],
    [COMMAND, LEFT, MODIFY_OFF, 0, DONE, NONE, 0],
    [COMMAND, LEFT, COLUMN + 79, 0, DONE, NONE, 0],
    [WRITE, LEFT, 0x33, 0, DONE, NONE, 0],
    [COMMAND, LEFT, MODIFY_ON, 0, DONE, NONE, 0],
    [COMMAND, LEFT, MODIFY_OFF, 0, DONE, NONE, 0],
    [WRITE, LEFT, 0x44, 0, DONE, NONE, 0],
    [READ, LEFT, 0, 0, DONE, STALE, 0x00],
    [READ, LEFT, 0, 0, DONE, STALE, 0x00],
    [COMMAND, LEFT, COLUMN + 79, 0, DONE, NONE, 0],
    [READ, LEFT, 0, 0, DONE, STALE, 0x00],
    [READ, LEFT, 0, 0, DONE, FRESH, 0x33],
    [READ, LEFT, 0, 0, DONE, STALE, 0x33],
];

// 4.13: reset brings page, column and start line to 0 and leaves RAM, display and direction alone.
const AFTER_RESET: [[u8; CASE]; 16] = [
    [COMMAND, LEFT, DISPLAY_ON, 0, DONE, NONE, 0],
    [COMMAND, LEFT, ADC_REVERSE, 0, DONE, NONE, 0],
    [COMMAND, LEFT, PAGE + 3, 0, DONE, NONE, 0],
    [COMMAND, LEFT, COLUMN + 32, 0, DONE, NONE, 0],
    [COMMAND, LEFT, START_LINE + 31, 0, DONE, NONE, 0],
    [WRITE, LEFT, 0x55, 0, DONE, NONE, 0],
    [COMMAND, LEFT, RESET, 0, DONE, NONE, 0],
    [STATUS, LEFT, 0, 0, DONE, STATUS_BYTE, 0x00],
    [WRITE, LEFT, 0x66, 0, DONE, NONE, 0],
    [COMMAND, LEFT, COLUMN, 0, DONE, NONE, 0],
    [READ, LEFT, 0, 0, DONE, STALE, 0x00],
    [READ, LEFT, 0, 0, DONE, FRESH, 0x66],
    [COMMAND, LEFT, PAGE + 3, 0, DONE, NONE, 0],
    [COMMAND, LEFT, COLUMN + 32, 0, DONE, NONE, 0],
    [READ, LEFT, 0, 0, DONE, STALE, 0x00],
    [READ, LEFT, 0, 0, DONE, FRESH, 0x55],
];

// 4.1, 4.5, 4.8: status by display and direction; the direction changes neither the storing nor the counting.
const STATUS_AND_DIRECTION: [[u8; CASE]; 15] = [
    [STATUS, LEFT, 0, 0, DONE, STATUS_BYTE, 0x60],
    [COMMAND, LEFT, DISPLAY_ON, 0, DONE, NONE, 0],
    [STATUS, LEFT, 0, 0, DONE, STATUS_BYTE, 0x40],
    [COMMAND, LEFT, ADC_REVERSE, 0, DONE, NONE, 0],
    [STATUS, LEFT, 0, 0, DONE, STATUS_BYTE, 0x00],
    [COMMAND, LEFT, COLUMN, 0, DONE, NONE, 0],
    [WRITE, LEFT, 0x77, 0, DONE, NONE, 0],
    [WRITE, LEFT, 0x88, 0, DONE, NONE, 0],
    [COMMAND, LEFT, ADC_FORWARD, 0, DONE, NONE, 0],
    [COMMAND, LEFT, COLUMN, 0, DONE, NONE, 0],
    [READ, LEFT, 0, 0, DONE, STALE, 0x00],
    [READ, LEFT, 0, 0, DONE, FRESH, 0x77],
    [READ, LEFT, 0, 0, DONE, FRESH, 0x88],
    [COMMAND, LEFT, DISPLAY_OFF, 0, DONE, NONE, 0],
    [STATUS, LEFT, 0, 0, DONE, STATUS_BYTE, 0x60],
];

// Refused records answer kind 0, byte 0 and change nothing: a column set in read-modify-write, bytes that are no command,
// strobes that are equal, a chip that is not there, a spare line, a fourth byte that is not 0. At the end the latch is
// fresh, and a page that is not there and refused data writes leave it so.
const REFUSALS: [[u8; CASE]; 20] = [
    [COMMAND, LEFT, COLUMN + 7, 0, DONE, NONE, 0],
    [COMMAND, LEFT, MODIFY_ON, 0, DONE, NONE, 0],
    [COMMAND, LEFT, COLUMN + 5, 0, COLUMN_IN_MODIFY, NONE, 0],
    [COMMAND, LEFT, 0x80, 0, NO_COMMAND, NONE, 0],
    [COMMAND, LEFT, 0xAC, 0, NO_COMMAND, NONE, 0],
    [COMMAND, LEFT, 0xBC, 0, NO_COMMAND, NONE, 0],
    [COMMAND, LEFT, 0xE3, 0, NO_COMMAND, NONE, 0],
    [STROBES, LEFT, 0, 0, EQUAL_STROBES, NONE, 0],
    [NO_STROBE, LEFT, 0, 0, EQUAL_STROBES, NONE, 0],
    [WRITE, NO_CHIP, 0x09, 0, NO_SUCH_CHIP, NONE, 0],
    [SPARE + STROBES, NO_CHIP, 0, 0, SPARE_BITS, NONE, 0],
    [WRITE, LEFT, 0x09, 1, SPARE_BITS, NONE, 0],
    [WRITE, LEFT, 0x99, 0, DONE, NONE, 0],
    [COMMAND, LEFT, MODIFY_OFF, 0, DONE, NONE, 0],
    [READ, LEFT, 0, 0, DONE, STALE, 0x00],
    [READ, LEFT, 0, 0, DONE, FRESH, 0x99],
    [COMMAND, LEFT, 0xBC, 0, NO_COMMAND, NONE, 0],
    [SPARE + WRITE, LEFT, 0x55, 0, SPARE_BITS, NONE, 0],
    [WRITE, LEFT, 0x55, 1, SPARE_BITS, NONE, 0],
    [READ, LEFT, 0, 0, DONE, FRESH, 0x00],
];

// The listing of document 01.
const LISTING: [[u8; CASE]; 9] = [
    [COMMAND, LEFT, PAGE + 1, 0, DONE, NONE, 0],
    [COMMAND, LEFT, COLUMN + 79, 0, DONE, NONE, 0],
    [WRITE, LEFT, 0xA5, 0, DONE, NONE, 0],
    [WRITE, LEFT, 0x3C, 0, DONE, NONE, 0],
    [COMMAND, LEFT, COLUMN + 79, 0, DONE, NONE, 0],
    [READ, LEFT, 0, 0, DONE, STALE, 0x00],
    [READ, LEFT, 0xA5, 0, DONE, FRESH, 0xA5],
    [READ, LEFT, 0xA5, 0, DONE, STALE, 0xA5],
    [STATUS, LEFT, 0xA0, 0, DONE, STATUS_BYTE, 0x60],
];

// Whether a case says what its record's cycle answered: of a refused record its number, with no kind and no byte.
#[tactic(auto, unfolding(crate::specs::Cases::case_agrees))]
fn case_agrees(case: [u8; CASE], answer: Result<Accepted, Refusal>) -> bool
    ensures { (c : Chip) → result ≡ case_agrees case (answer_of c answer) }
{
    match answer {
        Ok(Accepted { reading, .. }) => {
            case[4] == DONE && case[5] == reading.kind() && case[6] == reading.byte()
        }
        Err(refusal) => case[4] == refusal.number() && case[5] == NONE && case[6] == 0,
    }
}

// Whether each case's record is answered as the case says, from a fresh chip over RAM all 0.
fn agrees(cases: &[[u8; CASE]]) -> bool
    ensures { result ≡ agrees_of cases.now }
{
    let mut ram = [0u8; Chip::RAM_WIDTH];
    let mut chip = Chip::fresh();
    for &case in cases {
        let bus = Record::from([case[0], case[1], case[2], case[3]]);
        let answer = cycle(bus, chip, &mut ram);
        if !case_agrees(case, answer) {
            return false;
        }
        if let Ok(accepted) = answer {
            chip = accepted.chip;
        }
    }
    true
}

// Whether the sheet's sequences agree. Each source has a function, since a proof carries all that its function has done before.
fn sheet() -> bool
    ensures { result ≡ true }
{
    agrees(&CURSOR_BLINK)
        & agrees(&EMPTY_READ)
        & agrees(&COUNTING_STOP)
        & agrees(&AFTER_RESET)
        & agrees(&STATUS_AND_DIRECTION)
}

// Whether those of requests C-12 and C-15 do.
fn requests() -> bool
    ensures { result ≡ true }
{
    agrees(&CURSOR_READ_BACK) & agrees(&MISSING_COLUMN)
}

// Whether refused records and document 01's listing do.
fn document() -> bool
    ensures { result ≡ true }
{
    agrees(&REFUSALS) & agrees(&LISTING)
}

fn main() {
    check::expect(sheet());
    check::expect(requests());
    check::expect(document());
}

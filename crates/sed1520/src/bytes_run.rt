// Records given to the 12 bytes of a chip and its own 320 bytes of RAM. Data writes that follow each other are one loop, and
// so are data reads: each keeps what changes, the column and of reads the latch, in locals and stores it once, at the end.
ghost use Rattle.std.specs.Prelude.{◌+◌, ◌-◌, ◌*◌, ◌/◌, ◌≤◌, ◌<◌, ◌≡◌, true, ◌&&◌, ltb, length, get_or, drop};
ghost use Rattle.basics.specs.Choice.{if};
ghost use Rattle.basics.specs.Verdict.{result_of};
ghost use Rattle.sed1520.specs.Chip.{column_stop};
ghost use Rattle.sed1520.specs.ChipBytes.{chip_length};
ghost use Rattle.sed1520.specs.Cycle.{kind_of, byte_of};
ghost use Rattle.sed1520.specs.Memory.{ram_length};
ghost use Rattle.sed1520.specs.Records.{front};
ghost use Rattle.sed1520.specs.Replies.{in_place, reply};
ghost use Rattle.sed1520.specs.BytesRun.{carries, answered_alone, columns_written, run_leading, run_bytes};

use crate::bus::{Action, RECORD_BYTES, Record};
use crate::bytes_command::write_command;
use crate::chip_bytes::{CHIP_BYTES, registers_in};
use crate::memory::{load, store};
use crate::reading::Reading;
use crate::registers::Chip;
use crate::tally::{ANSWER_BYTES, Ran, Tally, compares, differs};
use basics::refusal::Refusal;
use basics::word_of;

// Whether a trace has an n-th record and it has these lines, names this chip and has a fourth byte of 0. Its four bytes
// are compared as one number with those that it would have.
fn carried(trace: &[u8], n: usize, lines: u8, chip: u8) -> bool
    ensures { result ≡ (ltb n (length trace.now / 4) && carries lines chip (front (drop (4 * n) trace.now))) }
{
    if n >= trace.len() / RECORD_BYTES {
        return false;
    }
    let from = RECORD_BYTES * n;
    let byte = trace[from + 2];
    let record = word_of(trace[from], trace[from + 1], byte, trace[from + 3]);
    record == word_of(lines, chip, byte, 0)
}

// The data writes to a chip that a trace begins with; the trace begins with at least one. The loop stops at the first other
// record.
fn write_run(chip: u8, bytes: &mut [u8], ram: &mut [u8], trace: &[u8], answers: &mut [u8]) -> Ran
    requires chip_bound { chip < 2 }
    requires bytes_len { length bytes.old ≡ chip_length }
    requires trace_in_bounds { 2 * (length trace.now / 4) ≤ length answers.old }
    requires in_bounds { 4 ≤ length trace.now }
    requires trace_value { carries 3 chip (front trace.now) ≡ true }
    ensures ran { in_place result.tally bytes.new ram.new answers.new
        ≡ run_leading 3 chip bytes.old ram.old trace.now answers.old }
    ensures moved { result.moved ≡ get_or bytes.new 7 0 - get_or bytes.old 7 0 }
{
    let page = bytes[5];
    let mut column = bytes[7];
    let mut n = 0;
    while carried(trace, n, 3, chip) {
        if column < Chip::COLUMN_STOP {
            store(ram, page, column, trace[RECORD_BYTES * n + 2]);
            column += 1;
        }
        answers[ANSWER_BYTES * n] = 0;
        answers[ANSWER_BYTES * n + 1] = 0;
        n += 1;
    }
    let moved = column - bytes[7];
    bytes[7] = column;
    bytes[9] = 0;
    let tally = Tally {
        number: 0,
        place: n as u64,
        compared: 0,
        differing: 0,
    };
    Ran { tally, moved }
}

// The data reads of a chip that a trace begins with.
fn read_run(chip: u8, bytes: &mut [u8], ram: &[u8], trace: &[u8], answers: &mut [u8]) -> Tally
    requires chip_bound { chip < 2 }
    requires bytes_len { length bytes.old ≡ chip_length }
    requires trace_in_bounds { 2 * (length trace.now / 4) ≤ length answers.old }
    ensures { in_place result bytes.new ram.now answers.new
        ≡ run_leading 5 chip bytes.old ram.now trace.now answers.old }
{
    let page = bytes[5];
    let modify = bytes[4] == 1;
    let mut column = bytes[7];
    let mut mark = bytes[9];
    let mut latch = bytes[10];
    let mut compared: u64 = 0;
    let mut differing: u64 = 0;
    let mut n = 0;
    'reads: while carried(trace, n, 5, chip) {
        let fresh = u8::from(mark == 1);
        answers[ANSWER_BYTES * n] = 2 - fresh;
        answers[ANSWER_BYTES * n + 1] = latch;
        compared += fresh as u64;
        differing += differs(fresh as u64, latch, trace[RECORD_BYTES * n + 2]);
        if column >= Chip::COLUMN_STOP {
            mark = 0;
        } else {
            mark = 1;
            latch = load(ram, page, column);
            column = counted_on(column, modify);
        }
        n += 1;
    }
    bytes[7] = column;
    bytes[9] = mark;
    bytes[10] = latch;
    Tally {
        number: 0,
        place: n as u64,
        compared,
        differing,
    }
}

// The column after a data read below the stop: read-modify-write keeps it.
fn counted_on(column: u8, modify: bool) -> u8
    requires { column < column_stop }
    ensures { result ≡ if modify column (column + 1) }
{
    if modify { column } else { column + 1 }
}

// One record's answer at the front of the answers, and its tally.
fn put_answer(bus: Record, reading: Reading, answers: &mut [u8]) -> Tally
    requires { 2 ≤ length answers.old }
    ensures { result_of result answers.new
        ≡ answered_alone bus (reply (kind_of reading) (byte_of reading)) answers.old }
{
    answers[0] = reading.kind();
    answers[1] = reading.byte();
    let compared = compares(reading);
    Tally {
        number: 0,
        place: 1,
        compared,
        differing: differs(compared, reading.byte(), bus.byte),
    }
}

// The records that a trace begins with and that run together, where there is one and all lengths are right.
fn run_first(bytes: &mut [u8], ram: &mut [u8], trace: &[u8], answers: &mut [u8]) -> Ran
    requires bytes_len { length bytes.old ≡ chip_length }
    requires ram_len { length ram.old ≡ ram_length }
    requires trace_in_bounds { 2 * (length trace.now / 4) ≤ length answers.old }
    requires in_bounds { 4 ≤ length trace.now }
    ensures ran { in_place result.tally bytes.new ram.new answers.new
        ≡ run_bytes bytes.old ram.old trace.now answers.old }
    ensures moved { result.moved ≡ columns_written trace.now 0 bytes.old bytes.new }
{
    let bus = Record::from([trace[0], trace[1], trace[2], trace[3]]);
    let action = match bus.action() {
        Ok(action) => action,
        Err(refusal) => return Ran::refused(refusal),
    };
    match action {
        Action::WriteData => write_run(bus.chip, bytes, ram, trace, answers),
        Action::ReadData => Ran::unmoved(read_run(bus.chip, bytes, ram, trace, answers)),
        Action::ReadStatus => {
            let status = Reading::Status(registers_in(bytes).status_byte());
            Ran::unmoved(put_answer(bus, status, answers))
        }
        Action::WriteCommand => match write_command(bytes, bus.byte) {
            Ok(()) => Ran::unmoved(put_answer(bus, Reading::Nothing, answers)),
            Err(refusal) => Ran::refused(refusal),
        },
    }
}

// The records that a trace begins with and that run together, given to the 12 bytes of a chip and its own 320 bytes of RAM:
// data writes to one chip, data reads of one chip, or any other record alone. This is no cycle: it refuses wrong lengths
// by number 1 and wrong bus records by numbers 4 to 8 and 14, but it does not test the chip (number 2). It is for a caller
// that has tested it once, as the replay does.
pub fn run_of_tested_bytes(
    bytes: &mut [u8],
    ram: &mut [u8],
    trace: &[u8],
    answers: &mut [u8],
) -> Ran
    ensures ran { in_place result.tally bytes.new ram.new answers.new
        ≡ run_bytes bytes.old ram.old trace.now answers.old }
    ensures moved { result.moved ≡ columns_written trace.now 0 bytes.old bytes.new }
{
    if bytes.len() != CHIP_BYTES
        || ram.len() != Chip::RAM_WIDTH
        || answers.len() / ANSWER_BYTES < trace.len() / RECORD_BYTES
    {
        return Ran::refused(Refusal::WrongSize);
    }
    if trace.len() < RECORD_BYTES {
        return Ran::unmoved(Tally::nothing_run(0, 0));
    }
    run_first(bytes, ram, trace, answers)
}

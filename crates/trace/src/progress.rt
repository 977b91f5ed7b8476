// What a feed holds beside its chips: the bytes kept over, the counts since the opening, and whether it still takes parts.
ghost use Rattle.std.specs.Prelude.{◌+◌, ◌≤◌, ◌≡◌, length, get_or};
ghost use Rattle.panel.specs.Trace.{trace_limit};
ghost use Rattle.trace.specs.Feed.{begun, stopped_at, so_far, progress_wrong, joined_to, moved_on};

use sed1520::bus::RECORD_BYTES;
use sed1520::tally::Tally;

// Whether a feed takes parts, or is stopped with the number and the place that it repeats. An `Option` would not say which
// of the two states `None` is.
#[derive(Clone, Copy, Debug, PartialEq, Eq)]
pub enum Ending {
    Open,
    Stopped(u8, u32),
}

// What a feed holds beside its chips: how many bytes are kept over and which, the records taken since the opening, how
// many reads were compared, how many of these differ, and the ending. The count and the three bytes stand as in C's bytes,
// which hold any count: number 2 refuses those over 3.
#[derive(Clone, Copy, Debug, PartialEq, Eq)]
pub struct Progress {
    pub kept: u8,
    pub first: u8,
    pub second: u8,
    pub third: u8,
    pub records: u32,
    pub compared: u32,
    pub differing: u32,
    pub ending: Ending,
}

impl Progress {
    // Nothing taken yet.
    pub fn begun(ending: Ending) -> Progress
        ensures { result ≡ begun ending }
    {
        Progress {
            kept: 0,
            first: 0,
            second: 0,
            third: 0,
            records: 0,
            compared: 0,
            differing: 0,
            ending,
        }
    }

    // Stopped, all else as it was.
    pub(crate) fn stopped(self, number: u8, place: u32) -> Progress
        ensures { result ≡ stopped_at number place self }
    {
        Progress {
            ending: Ending::Stopped(number, place),
            ..self
        }
    }

    // The tally of a number and its place, with the counts so far.
    pub(crate) fn so_far(self, number: u8, place: u64) -> Tally
        ensures { result ≡ so_far self number place }
    {
        Tally {
            number,
            place,
            compared: self.compared as u64,
            differing: self.differing as u64,
        }
    }

    // Number 2 at place 3: over 3 bytes kept, more compared than records, or more differing than compared.
    #[tactic(auto, using(std::proofs::lemmas::Bool::Decides::nat_tests), unfolding(crate::specs::Feed::progress_wrong))]
    pub(crate) fn wrong(self) -> bool
        ensures { result ≡ progress_wrong self }
    {
        self.kept > 3 || self.compared > self.records || self.differing > self.compared
    }

    // A byte of those kept over and the part after them; 0 past the end.
    pub(crate) fn byte_at(self, part: &[u8], at: usize) -> u8
        requires { self.kept ≤ 3 }
        ensures { result ≡ get_or (joined_to self part.now) at 0 }
    {
        let kept = self.kept as usize;
        if at >= kept {
            return part.get(at - kept).copied().unwrap_or(0);
        }
        match at {
            0 => self.first,
            1 => self.second,
            _ => self.third,
        }
    }

    // After a part's records: the counts go on; done, what is past the last whole record is kept over; refused, the feed is
    // stopped.
    #[tactic(auto, using(std::proofs::lemmas::Bool::Decides::nat_tests), unfolding(crate::specs::Feed::moved_on))]
    pub(crate) fn moved_on(self, part: &[u8], tally: Tally) -> Progress
        requires kept_bound { self.kept ≤ 3 }
        requires part_len_bound { length part.now ≤ trace_limit }
        requires place_bound { self.records + tally.place ≤ 4294967295 }
        requires compared_bound { self.compared + tally.compared ≤ 4294967295 }
        requires differing_bound { self.differing + tally.differing ≤ 4294967295 }
        ensures { result ≡ moved_on self (joined_to self part.now) tally }
    {
        let records = self.records + (tally.place as u32);
        let compared = self.compared + (tally.compared as u32);
        let differing = self.differing + (tally.differing as u32);
        if tally.number != 0 {
            return Progress {
                records,
                compared,
                differing,
                ..Progress::begun(Ending::Stopped(tally.number, records))
            };
        }
        let bytes = (self.kept as usize) + part.len();
        let from = RECORD_BYTES * (bytes / RECORD_BYTES);
        Progress {
            kept: (bytes % RECORD_BYTES) as u8,
            first: self.byte_at(part, from),
            second: self.byte_at(part, from + 1),
            third: self.byte_at(part, from + 2),
            records,
            compared,
            differing,
            ending: Ending::Open,
        }
    }
}

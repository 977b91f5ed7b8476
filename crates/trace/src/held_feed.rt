// A feed that its owner holds by a reference: each function takes it out, calls the function by value and puts the next
// feed back.
ghost use Rattle.std.specs.Prelude.{◌≡◌};
ghost use Rattle.trace.specs.Feed.{as_fed, part_outcome, close_of};
ghost use Rattle.trace.specs.Wear.{with_wear, part_with_wear};

use crate::feed::Feed;
use sed1520::tally::Tally;

// The next part given to a feed that its owner holds: the by-value call, put back.
pub fn give_part(
    feed: &mut Feed,
    ram: &mut [u8],
    part: &[u8],
    answers: &mut [u8],
    wear: &mut [u32],
) -> Tally
    ensures { with_wear (part_outcome (as_fed result feed.new) ram.new answers.new) wear.new
        ≡ part_with_wear feed.old ram.old part.now answers.old wear.old }
{
    let fed = feed.part(ram, part, answers, wear);
    *feed = fed.feed;
    fed.tally
}

// The closing of a feed that its owner holds.
pub fn close_feed(feed: &mut Feed) -> Tally
    ensures { as_fed result feed.new ≡ close_of feed.old }
{
    let closed = feed.close();
    *feed = closed.feed;
    closed.tally
}

// All records of a flow.
ghost use Rattle.std.specs.Prelude.{◌≡◌};
ghost use Rattle.std.specs.Iterator.{YieldsFirst, item_count};
ghost use Rattle.listing.specs.Listing.{listed, left};

use crate::record_at;
use domain::fault::Fault;
use formula::limits::{MAX_RECORDS, RECORD_SIZE};
use formula::record::Record;
use std::ops::Range;

// The records in the bytes of a flow, in order. A flow has at most MAX_RECORDS.
#[derive(Drop)]
pub struct Records<'a> {
    flow: &'a [u8],
    // The places of those that are still to come.
    places: Range<u16>,
}

impl<'a> Records<'a> {
    pub fn of(flow: &'a [u8]) -> Records<'a>
        ensures { left result ≡ listed flow.now }
    {
        let count = (flow.len() / RECORD_SIZE).min(MAX_RECORDS);
        Records {
            flow,
            // by `as`: it fits, and `try_from` would have an `Err` that never comes
            places: 0..count as u16,
        }
    }
}

impl<'a> Iterator for Records<'a> {
    type Item = Result<Record, Fault>;

    ghost next_gives = { YieldsFirst left };

    ghost remaining = { item_count left };

    fn next(&mut self) -> Option<Result<Record, Fault>> {
        let place = self.places.next()?;
        Some(record_at(self.flow, place))
    }
}

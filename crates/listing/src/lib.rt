// The records of flows, as programs list them.
#![tactic(auto)]

ghost use Rattle.std.specs.Prelude.{◌≡◌};
ghost use Rattle.listing.specs.Listing.{taken};

use domain::fault::Fault;
use formula::limits::RECORD_SIZE;
use formula::record::Record;

pub mod records;

// The record at its place in the bytes of a flow.
pub fn record_at(flow: &[u8], place: u16) -> Result<Record, Fault>
    ensures { result ≡ taken flow.now place }
{
    let (records, _) = flow.as_chunks::<RECORD_SIZE>();
    let bytes = records
        .get(usize::from(place))
        .ok_or(Fault::BadLength { bytes: flow.len() })?;
    Record::decode(place, *bytes)
}

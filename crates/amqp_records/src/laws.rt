//! What files of records and of blocks say.

ghost use Rattle.amqp_records.specs.Blocks.{BeginningsAreTorn, PutIsRead};
ghost use Rattle.amqp_records.specs.Records.{OneReading};

/// A file is read in one way. It has no records but those that [`crate::print_records`] writes of, one after
/// another from its first byte on, up to a rest that begins with no whole record.
pub fn one_reading()
    ensures { OneReading }
{}

/// If writing broke off inside a block, [`crate::whole_blocks`] takes the beginning that is there as torn.
pub fn beginnings_are_torn()
    ensures { BeginningsAreTorn }
{}

/// The block that [`crate::Blocks::put`] makes of whole records is read as a block of these records, with the
/// number that was given. They must be one record, or have at most `BLOCK_MOST` bytes.
pub fn put_is_read()
    ensures { PutIsRead }
{}

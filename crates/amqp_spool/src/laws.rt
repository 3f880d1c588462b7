//! What entries are, whose records are, what a reader gets of them, and what the texts of positions are.

ghost use Rattle.amqp_spool.specs.EntryLaws.{OneEntryAtAFront, OneListOfEntries, IntroductionsAreShort};
ghost use Rattle.amqp_spool.specs.NameLaws.{TheLastIsKnown, NobodyIsIntroduced, EachIsNamed, NothingWaits, SettlesHere, SettlesAnew, IsBodyAnew, IsAloneAnew, IsAloneHere};
ghost use Rattle.amqp_spool.specs.NamesLaws.{ReadersGetNamed, WhatIsReadIsABody};
ghost use Rattle.amqp_spool.specs.Folders.{Now};
ghost use Rattle.amqp_spool.specs.Sayings.{Puts};
ghost use Rattle.amqp_spool.specs.Spools.{Has, KeepsTold};
ghost use Rattle.amqp_spool.specs.SpoolLaws.{AreRead, TheToldAreRead, EachLifeFindsTheTold, EachLossIsFound, EachNumberHasItsSegment};
ghost use Rattle.amqp_spool.specs.Consumers.{NoConsumerMisses};
ghost use Rattle.amqp_spool.specs.PositionLaws.{DigitsAreOfTheNumber, OnePositionOfAText};

use crate::folder::Folder;
use crate::spool::Spool;

/// Bytes begin with one entry at most, and one thing is after it.
pub fn one_entry_at_a_front()
    ensures { OneEntryAtAFront }
{}

/// The body of a batch has one list of entries.
pub fn one_list_of_entries()
    ensures { OneListOfEntries }
{}

/// An introduction has at most 1867 bytes.
pub fn introductions_are_short()
    ensures { IntroductionsAreShort }
{}

/// Who is known on a link after entries is who its last introduction names.
pub fn the_last_is_known()
    ensures { TheLastIsKnown }
{}

/// Nobody is known only on a link that no entry introduces.
pub fn nobody_is_introduced()
    ensures { NobodyIsIntroduced }
{}

/// A record has the sender that is known on its link after the entries before it.
pub fn each_is_named()
    ensures { EachIsNamed }
{}

/// Where no link is open, an empty batch waits, for any segment.
pub fn nothing_waits()
    ensures { NothingWaits }
{}

/// After a batch was settled at the end of its segment and cleared, an empty one waits for the segment with its
/// entries.
pub fn settles_here()
    ensures { SettlesHere }
{}

/// After a batch was settled in a new segment and cleared, an empty one waits for that segment.
pub fn settles_anew()
    ensures { SettlesAnew }
{}

/// The body for a new segment is entries: the introductions that it needs, and those of the batch.
pub fn is_body_anew()
    ensures { IsBodyAnew }
{}

/// In a new segment each record of a batch has its link introduced before it.
pub fn is_alone_anew()
    ensures { IsAloneAnew }
{}

/// In a segment with a batch at its end each record has its link introduced before it, if that held before.
pub fn is_alone_here()
    ensures { IsAloneHere }
{}

/// A reader that asks for the next record until there is none, and each time who sends on its link, gets the records of
/// the body, each with who sends on its link.
pub fn readers_get_named()
    ensures { ReadersGetNamed }
{}

/// What is read to its end is the body of a batch.
pub fn what_is_read_is_a_body()
    ensures { WhatIsReadIsABody }
{}

/// However consumers come, go and acknowledge beside the gateway, each finds all that it has not acknowledged.
pub fn no_consumer_misses()
    ensures { NoConsumerMisses }
{}

/// The decimal digits of a number are as many as asked for, and have its value.
pub fn digits_are_of_the_number()
    ensures { DigitsAreOfTheNumber }
{}

/// A text is that of one position.
pub fn one_position_of_a_text()
    ensures { OnePositionOfAText }
{}

/// Between two calls, whatever a crash leaves of a spool goes on from chapters that tell what was told.
pub fn the_told_are_kept<F: Folder + Drop>(spool: &Spool<F>)
    ensures { (told waiting : Puts) → Has F.history told waiting spool.now → Now (KeepsTold told) (F.history spool.now.journal.folder) }
{
    let _ = spool;
}

/// What is kept is read: the records that were told, in order, each with who sent it, but for those that the floor has
/// passed.
pub fn what_is_kept_is_read()
    ensures { TheToldAreRead }
{}

/// What one life was told, the next one finds, at whatever moment that life ended.
pub fn each_life_finds_the_told()
    ensures { EachLifeFindsTheTold }
{}

/// A loss of power at any moment leaves a folder that a life may find.
pub fn each_loss_is_found()
    ensures { EachLossIsFound }
{}

/// If a start has gone back to the floor, each number above the floor and below the newest segment has its segment.
pub fn each_number_has_its_segment()
    ensures { EachNumberHasItsSegment }
{}

/// Whatever a crash leaves of a spool between two calls, what is read of it are the records that were told, in order,
/// each with who sent it, but for those that the floor has passed.
pub fn the_told_are_read<F: Folder + Drop>(spool: &Spool<F>)
    ensures { (told waiting : Puts) → Has F.history told waiting spool.now → Now (AreRead told) (F.history spool.now.journal.folder) }
{
    let _ = spool;
}

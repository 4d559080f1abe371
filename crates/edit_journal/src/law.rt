//! The laws of the list of bodies, as functions that do nothing.
ghost use Rattle.edit_journal.specs.Law.{WrittenIsRead, ReadWasWritten, DamageHasPlace};

/// Bodies that were written, up to a closed gate, are read back with their places, whatever stands
/// behind that gate.
pub fn written_is_read()
    ensures { WrittenIsRead }
{}

/// Bodies that are read of bytes were written so, up to a closed gate, or there are at most nine
/// bytes and no body.
pub fn read_was_written()
    ensures { ReadWasWritten }
{}

/// Where bytes are damaged, they are longer than a store may be, or do not begin with `EMUSTORE`,
/// or were written as some bodies up to the place of the damage, where no gate stands or an open
/// gate with a length that is cut, is 0 or passes the end.
pub fn damage_has_its_place()
    ensures { DamageHasPlace }
{}

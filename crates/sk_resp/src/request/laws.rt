// What follows from the definitions of a stream, whatever reads it.
ghost use Rattle.sk_resp.specs.Laws.{FaultStays, FaultsOn, OneFault, OneReading, ReadOrFaulty, ReadsOn, SomeReading, WrittenIsRead};

/// Each stream of bytes is read as commands in exactly one way, or has exactly one fault behind one list of commands.
pub fn one_reading()
    ensures some { SomeReading }
    ensures reads { OneReading }
    ensures faulty { OneFault }
    ensures not_both { ReadOrFaulty }
{}

/// A stream may be read piece by piece.
pub fn piece_by_piece()
    ensures reads { ReadsOn }
    ensures faulty { FaultsOn }
    ensures stays { FaultStays }
{}

/// A command that is written as its array is read again, whatever follows.
pub fn written_is_read()
    ensures { WrittenIsRead }
{}

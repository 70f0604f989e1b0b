// What holds of the readings of any words.
ghost use Rattle.sk_cmd.specs.Laws.{OneCommand, SomeCommand};

/// Two readings of the same words are one command or one fault, where neither is want of memory.
pub fn one_command()
    ensures { OneCommand }
{}

/// Any words are a command, or have a first fault that isn't want of memory: the table leaves no case out. So together with [`one_command`] each
/// list of words has exactly one such reading.
pub fn some_command()
    ensures { SomeCommand }
{}

// Laws of the words, over the definitions alone.
ghost use Rattle.reshape.specs.Laws.{OneCommand, MadeAlone};

/// States that the same arguments never ask for two different commands: they determine the edits,
/// the layout and the rules.
pub fn one_command()
    ensures { OneCommand }
{}

/// States that arguments that ask for generated input ask for one number of records, and for no
/// edits and no layout.
pub fn made_alone()
    ensures { MadeAlone }
{}

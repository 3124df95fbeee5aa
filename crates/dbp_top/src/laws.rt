// Laws of the definitions.

ghost use Rattle.std.specs.Prelude.{◌≡◌, List as Items};
ghost use Rattle.std.specs.declared.alloc.Global.{Global as Heap};
ghost use Rattle.std.specs.declared.string.String.{String as Text};
ghost use Rattle.dbp_answers.specs.declared.command.Command.{Command as Named};
ghost use Rattle.dbp_top.specs.Commands.{Names};

/// Arguments name one command at most.
pub fn one_command()
    ensures { (arguments : Items (Text Heap)) (c d : Named) → Names arguments c → Names arguments d → c ≡ d }
{}

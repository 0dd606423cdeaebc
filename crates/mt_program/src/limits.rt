ghost use Rattle.std.specs.Prelude.{◌≡◌};
ghost use Rattle.mt_program.specs.Command.{input_limit};

use mt_cli::Command;

/// The most bytes that the input of a command may have: one that reads nothing has none.
pub fn limit_of(command: &Command) -> usize
    ensures { result ≡ input_limit command.now }
{
    match command {
        Command::Replay { .. } | Command::Image { .. } | Command::Bulk { .. } => 8_388_608,
        Command::Verify { .. } | Command::Show => 67_108_864,
        Command::Make { .. } | Command::Trial { .. } | Command::Ids { .. } => 0,
    }
}

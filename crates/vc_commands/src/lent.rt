ghost use Rattle.std.specs.Prelude.{◌≡◌};
ghost use Rattle.vc_commands.specs.Answered.{answered};

use vc_base::OutOfMemory;
use vc_script::Reply;

/// Puts the reply of an answer in place of another one, or answers its error.
pub fn put_answer(answer: Result<Reply, OutOfMemory>, reply: &mut Reply) -> Result<(), OutOfMemory>
    ensures { answered result reply.new ≡ answer }
{
    match answer {
        Ok(given) => {
            *reply = given;
            Ok(())
        }
        Err(want) => Err(want),
    }
}

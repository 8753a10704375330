// What several refusals have in common.
ghost use Rattle.std.specs.Prelude.{◌≡◌};
ghost use Rattle.model.specs.commands.Naming.{permission_beyond};

// Kept (5): a command and a question of the model hold the operation and the object as two numbers (`Grant`, `Check`); a struct of both would be made at each call, and be taken apart in it.
// Is the operation or the object beyond its range?
pub fn permission_beyond(op: u16, obj: u16) -> bool
    ensures { result ≡ permission_beyond op obj }
{
    16 <= op || 256 <= obj
}

//! What holds of what is remembered. Each law is the contract of a function that does nothing.

ghost use Rattle.type_arena.specs.Store.{Store, IsSound, Keeps};
ghost use Rattle.subtype_memory.specs.Memory.{IsRight};
ghost use Rattle.subtype_memory.specs.declared.memory.Remembered.{Remembered};

/// What is remembered stays right while the arenas get nodes.
pub fn answers_stay_right()
    ensures { (old new : Store) (known : Remembered) → IsSound old → IsSound new → Keeps old new → IsRight old known → IsRight new known }
{}

//! Laws of the definitions: functions with no work to do, whose contracts are the laws.
ghost use Rattle.std.specs.Prelude.{◌≡◌, ◌≢◌, ◌<◌, ℕ, Option};
ghost use Rattle.vc_history.specs.Generation.{Agrees};
ghost use Rattle.vc_object_map.specs.History.{IsAncestor};
ghost use Rattle.vc_history.specs.Right.{AreAllIn, IsGeneration};
ghost use Rattle.vc_object_map.specs.Graph.{LinksTo};
ghost use Rattle.vc_object.specs.ObjectMap.{ObjectMap, parents_in};
ghost use Rattle.vc_object.specs.declared.id.ObjectId.{ObjectId as Id};

/// A commit has one generation at most.
pub fn one_generation()
    ensures { (objects : ObjectMap) (id : Id) (n m : ℕ) → IsGeneration objects id n → IsGeneration objects id m → n ≡ m }
{}

/// A parent's generation is less than its child's.
pub fn parents_come_before()
    ensures { (objects : ObjectMap) (child parent : Id) (n m : ℕ) → LinksTo (parents_in objects) child parent → IsGeneration objects child n → IsGeneration objects parent m → m < n }
{}

/// An ancestor other than the commit itself has a smaller generation.
pub fn ancestors_come_before()
    ensures { (objects : ObjectMap) (a b : Id) (n m : ℕ) → IsAncestor (parents_in objects) a b → a ≢ b → IsGeneration objects a n → IsGeneration objects b m → n < m }
{}

/// What agrees with objects agrees with more of them: no object that is added changes a generation.
pub fn more_objects_agree()
    ensures { (objects more : ObjectMap) (numbers : Id → Option ℕ) → AreAllIn more objects → Agrees (parents_in objects) numbers → Agrees (parents_in more) numbers }
{}

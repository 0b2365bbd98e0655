//! Sorting values, each once.
ghost use Rattle.std.specs.Prelude.{◌≡◌, ◌↔◌, List, Contains, AllPairs};
ghost use Rattle.std.specs.Cmp.{IsTotalOrder};
ghost use Rattle.std.specs.FinMap.{IsAntisymmetric};
ghost use Rattle.std.specs.List.Sorted.{IsSorted};
ghost use Rattle.std.specs.declared.cmp.Ordering.{Ordering};
ghost use Rattle.std.specs.declared.cmp.Ordering.TheVariants.{Less};
ghost use Rattle.luau_tree.specs.Sorted.{sorted_by};

/// The values in their order, each once, where only equal values tie. Sorts in place and takes no memory.
pub fn sort_once<T: Ord + Drop>(values: Vec<T>) -> Vec<T>
    requires { IsAntisymmetric T.cmp }
    ensures values { result.items ≡ sorted_by T.cmp values.items }
    ensures order { IsSorted T.cmp result.items }
{
    let mut values = values;
    values.sort_unstable();
    values.dedup();
    values
}

/// Of values sorted by a total order, each comes before all later ones.
pub fn sorted_values_are_in_order<T>()
    ensures { (cmp : T → T → Ordering) → IsTotalOrder cmp → (values : List T) → AllPairs (λ a b. cmp a b ≡ Less) (sorted_by cmp values) }
{}

/// The sorted values are the values themselves, where only equal values tie.
pub fn sorted_values_are_the_values<T>()
    ensures { (cmp : T → T → Ordering) → IsTotalOrder cmp → IsAntisymmetric cmp → (values : List T) (value : T) → (Contains (sorted_by cmp values) value ↔ Contains values value) }
{}

/// No other list in order has the same values.
pub fn sorted_values_are_determined<T>()
    ensures { (cmp : T → T → Ordering) → IsTotalOrder cmp → IsAntisymmetric cmp → (values other : List T) → AllPairs (λ a b. cmp a b ≡ Less) other → ((value : T) → (Contains other value ↔ Contains values value)) → other ≡ sorted_by cmp values }
{}

// What becomes of texts that are parsed side by side.
ghost use Rattle.std.specs.Prelude.{◌≡◌, ◌≤◌, ◌∷◌, ◌++◌, [], List, Ok, Err, Result, length, map, vec_capacity, MatchResult};

/// Takes the values out of these results up to the first fault, which is the error. There is room for all.
pub fn take_values<T: Drop, E: Drop>(
    results: Vec<Result<T, E>>,
    values: &mut Vec<T>,
) -> Result<(), E>
    requires none { values.old.items ≡ [] }
    requires room { length results.items ≤ vec_capacity values.old }
    ensures { MatchResult result (λ _. results.items ≡ map Ok values.new.items)
        (λ fault. (rest : List (Result T E)) × (results.items ≡ map Ok values.new.items ++ Err fault ∷ rest)) }
{
    for result in results {
        match result {
            Ok(value) => values.push_reserved(value),
            Err(fault) => return Err(fault),
        }
    }
    Ok(())
}

//! How values are ordered.
use ifmap_elem::Equals;
use std::alloc::{AllocError as NoMemory, Global};
use std::cmp::Ordering;

/// A word for each value, with a sign for each of all: `<` where it comes before that one, `=` where both
/// are equal, `>` where it comes after, and `?` where its answers do not agree.
pub fn signs_of<T: Ord + Equals>(alloc: Global, values: &[T]) -> Result<String, NoMemory> {
    let mut signs = String::new(alloc);
    for one in values {
        if !signs.is_empty() {
            signs.push(' ')?;
        }
        push_signs(one, values, &mut signs)?;
    }
    Ok(signs)
}

fn push_signs<T: Ord + Equals>(one: &T, values: &[T], signs: &mut String) -> Result<(), NoMemory> {
    for other in values {
        signs.push(sign_of(one, other))?;
    }
    Ok(())
}

fn sign_of<T: Ord + Equals>(one: &T, other: &T) -> char {
    match (one.cmp(other), one == other, one.equals(other)) {
        (Ordering::Less, false, false) => '<',
        (Ordering::Equal, true, true) => '=',
        (Ordering::Greater, false, false) => '>',
        _ => '?',
    }
}

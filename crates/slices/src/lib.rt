// Slices that may be read and written at any index: what is past the end reads as a given value and takes no store.

#![tactic(auto)]

ghost use Rattle.std.specs.Prelude.{◌≡◌, get_or, set};

// The element there, or what stands for one that is not there.
pub fn at_or<T: Copy>(slice: &[T], i: usize, missing: T) -> T
    ensures { result ≡ get_or slice.now i missing }
{
    slice.get(i).copied().unwrap_or(missing)
}

// The element there takes the value, where there is one.
pub fn put<T: Copy>(slice: &mut [T], i: usize, value: T)
    ensures { slice.new ≡ set slice.old i value }
{
    if i < slice.len() {
        slice[i] = value;
    }
}

#[cfg(test)]
mod tests {
    use super::*;
    use std::test::Fail;

    #[test]
    fn inside_and_past_the_end(rt: HostRuntime) -> Result<(), Fail> {
        let mut bytes = [1u8, 2, 3];
        put(&mut bytes, 1, 9);
        put(&mut bytes, 3, 7);
        assert_eq!(rt; bytes, [1, 9, 3]);
        assert_eq!(rt; at_or(&bytes, 1, 0), 9);
        assert_eq!(rt; at_or(&bytes, 3, 5), 5);
        Ok(())
    }
}

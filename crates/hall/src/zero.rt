// What a refusal leaves: the first places of a lent table become zero. Nothing here refuses, and a shorter table
// becomes zero throughout.
ghost use Rattle.std.specs.Prelude.{◌≡◌};
ghost use Rattle.hall.specs.Left.{with_front};

// The first `least` places get the value, all of them in a shorter list. Places beyond are not touched.
pub fn fill_first<T: Copy>(list: &mut [T], least: usize, value: T)
    ensures { list.new ≡ with_front value least list.old }
{
    let end = least.min(list.len());
    for place in &mut list[..end] {
        *place = value;
    }
}

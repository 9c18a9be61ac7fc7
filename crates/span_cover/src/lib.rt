// Whether one sound list has all points of another, and whether two have one in common.
#![tactic(auto)]

ghost use Rattle.std.specs.Prelude.{◌≡◌, true};
ghost use Rattle.spans.specs.Spans.{sound};
ghost use Rattle.span_cover.specs.Cover.{Covers, Meets};

// Whether each point of inner is in outer.
pub fn covers(outer: &[f64], inner: &[f64]) -> bool
    requires { (sound outer.now ≡ true) × (sound inner.now ≡ true) }
    ensures { Covers outer.now inner.now result }
{
    let mut k = 0;
    let mut j = 0;
    while k < inner.len() {
        if outer.len() <= j {
            return false;
        }
        if outer[j + 1] < inner[k + 1] {
            j += 2;
        } else {
            if inner[k] < outer[j] {
                return false;
            }
            k += 2;
            if inner.len() <= k {
                return true;
            }
            if outer[j + 1] < inner[k + 1] {
                j += 2;
            }
        }
    }
    true
}

// Whether some point is in both lists.
pub fn meets(a: &[f64], b: &[f64]) -> bool
    requires { (sound a.now ≡ true) × (sound b.now ≡ true) }
    ensures { Meets a.now b.now result }
{
    let mut i = 0;
    let mut j = 0;
    while i < a.len() && j < b.len() {
        if a[i + 1] <= b[j] {
            i += 2;
        } else {
            if a[i] < b[j + 1] {
                return true;
            }
            j += 2;
        }
    }
    false
}

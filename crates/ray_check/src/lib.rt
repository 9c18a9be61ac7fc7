// Whether two lent lists are document 01's valid ray.
#![tactic(auto)]

ghost use Rattle.std.specs.Prelude.{◌≡◌, true};
ghost use Rattle.spans.specs.Rays.{bounded, ValidRay};

// Whether each end of a list lies within the bounds.
fn is_bounded(s: &[f64], lo: f64, hi: f64) -> bool
    ensures { result ≡ bounded lo hi s.now }
{
    s.iter().all(|x| lo <= *x && *x <= hi)
}

// Whether two lists make a ray that is valid within its bounds.
pub fn valid_ray(possible: &[f64], certain: &[f64], lo: f64, hi: f64) -> bool
    ensures { (result ≡ true → ValidRay lo hi possible.now certain.now)
        × (ValidRay lo hi possible.now certain.now → result ≡ true) }
{
    spans::both_sound(possible, certain)
        && is_bounded(possible, lo, hi)
        && is_bounded(certain, lo, hi)
        && span_cover::covers(possible, certain)
}

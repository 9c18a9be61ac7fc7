// The tool standing still: the outer pair of a ray covers the exact disc at either end of a chord. Definitions and laws
// only.
#![tactic(auto)]

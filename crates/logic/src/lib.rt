// Tests and counts in general: what it is for a test to decide a claim, how many places pass a test, and laws of
// Bool. Definitions and laws only.
#![tactic(auto)]

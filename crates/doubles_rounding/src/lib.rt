// Rounding by whole numbers of units: definitions and laws only. How far each operation on doubles goes from the exact
// number, that rounding keeps the order, and the square root in units; in either format.
#![tactic(auto)]

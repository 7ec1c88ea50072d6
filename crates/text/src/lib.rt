// Typed polynomials: the grammar, what a text means, what the reader and the writer answer, and the laws. No function.
#![tactic(auto)]

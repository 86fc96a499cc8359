// Scanning: no functions; the definition of which bytes are a lookup, word by word, and that it is exact.

#![tactic(auto)]

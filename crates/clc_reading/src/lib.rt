//! Readers of lists of tokens, the laws that an exact reader of a language keeps, and what follows from
//! these laws: a text has one value at most, and where reading stops first the text has its first
//! fault. No grammar stands here.
#![tactic(auto)]

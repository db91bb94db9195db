//! Edge sets, trees, decorated trees and the list of all of them, Prüfer words and the numbers of trees: definitions, in
//! `specs/`, and their laws, in `proofs/`.
#![tactic(auto)]

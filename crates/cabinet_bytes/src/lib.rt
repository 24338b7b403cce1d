// The cabinet's record as 288 bytes: specs/Encoding.antt has the places, proofs/ that what was encoded decodes to the same, and the other way. It carries no code:
// crates/cabinet_encode writes the bytes, crates/cabinet_decode reads them.
#![tactic(auto)]

// A module's device record as 128 bytes: specs/Encoding.antt has the places, proofs/ that what was encoded decodes to the same, and the other way. It carries no code:
// crates/device_encode writes the bytes, crates/device_decode reads them.
#![tactic(auto)]

// Definitions alone (specs/): what the passes that go by weights say of blocks, sets and a chosen arm.
#![tactic(auto)]

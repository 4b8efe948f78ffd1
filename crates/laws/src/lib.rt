// Holds no code: specs/ has the words in which the demands are stated, proofs/ the laws of the definitions and the demands.
#![tactic(auto)]

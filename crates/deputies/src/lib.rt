// Who speaks for whom, by pairs of a deputy and a principal: definitions and theorems; no code lends
// pairs yet (02, job 14).

#![tactic(auto)]

// The starred cases of document 01, computed by the checker: specs/Starred.antt.
#![tactic(auto)]

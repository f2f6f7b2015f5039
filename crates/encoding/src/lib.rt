// No code: what the bytes of a descriptor and its tree say of each other is proved here.
#![tactic(auto)]

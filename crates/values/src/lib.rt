// No code: what data is, apart from the walk, and what the walk and the values say of each other is proved here.
#![tactic(auto)]

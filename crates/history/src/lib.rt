// No code: what a book is, whatever was asked of it before, is proved here.
#![tactic(auto)]

// A book printed back as text (document 02, C-14), with no code: the definitions and what is proved of them are in specs.
#![tactic(auto)]

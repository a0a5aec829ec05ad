// The pieces to try of document 01, as rows in specs/ and one theorem over them; there is no code here.
#![tactic(auto)]

// A site's tables in lent words: the layout, and what a call leaves of it. Definitions with their laws; no code.

#![tactic(auto)]

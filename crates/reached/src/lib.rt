// No code: calls as data, the words of the demands on tables, and the laws of the tables that calls make are in specs/.
#![tactic(auto)]

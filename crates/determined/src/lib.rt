// Each public function's promise determines its results. No code.
#![tactic(auto)]

// The top theorems, stated once more in one place, and the exactness of every public function; there is no code here.
#![tactic(auto)]

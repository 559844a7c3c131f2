// Tasks that feed each other, paths, circles and the order: its definitions are in specs/, its laws in proofs/.
#![tactic(auto)]

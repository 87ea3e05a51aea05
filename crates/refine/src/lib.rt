// Laws alone: what working out comes to, by the meaning of forms.
#![tactic(auto)]
